// A call of the outside that fails, for each number of a call until a run meets none.
use pl_desk::{MemDesk, MemSource};
use places::Status;
use std::test::Fail;
use trials_desks::in_memory;

// 40 bytes, whose lines end at 29, 30, 35 and 39.
const SCRIPT: &[u8] = b"visit\thttps://a.example/\t1\t0\n\nfrob\n# a\nx";

const FIRST: &[u8] = b"visit\t1\tpage\t1\tfrecency\t100\n";

const SECOND: &[u8] = b"visit\t1\tpage\t1\tfrecency\t100\nrefused\t14\t1\n";

const ALL: &[u8] = b"visit\t1\tpage\t1\tfrecency\t100\nrefused\t14\t1\nrefused\t14\t1\n";

// In pieces of ten bytes the reads end at 10, 20, 30 and 40, and the fifth finds the end.
const READS: &[(u32, Status, &[u8])] = &[
    (0, Status::ReadFault, b""),
    (1, Status::ReadFault, b""),
    (2, Status::ReadFault, b""),
    (3, Status::ReadFault, FIRST),
    (4, Status::ReadFault, SECOND),
    (5, Status::Done, ALL),
];

#[test]
fn stops_at_a_read_that_fails(rt: HostRuntime) -> Result<(), Fail> {
    let alloc = rt.alloc();
    for (call, ends, said) in READS {
        let mut input = MemSource::over(alloc, SCRIPT, 10, &[*call])?;
        let mut desk = MemDesk::holding(alloc, &[], &[])?;
        let status = in_memory(alloc, &["try"], &mut input, &mut desk);
        assert_eq!(rt; status, *ends, "call {call}");
        assert_eq!(rt; desk.said(), *said, "call {call}");
    }
    Ok(())
}

const SAYS: &[(u32, Status, &[u8])] = &[
    (0, Status::SayFault, b""),
    (1, Status::SayFault, FIRST),
    (2, Status::SayFault, SECOND),
    (3, Status::Done, ALL),
];

#[test]
fn stops_at_a_say_that_fails(rt: HostRuntime) -> Result<(), Fail> {
    let alloc = rt.alloc();
    for (call, ends, said) in SAYS {
        let mut input = MemSource::over(alloc, SCRIPT, 64, &[])?;
        let mut desk = MemDesk::holding(alloc, &[], &[*call])?;
        let status = in_memory(alloc, &["try"], &mut input, &mut desk);
        assert_eq!(rt; status, *ends, "call {call}");
        assert_eq!(rt; desk.said(), *said, "call {call}");
    }
    Ok(())
}

const NUMBERS: &[(Status, u8, Option<u64>)] = &[
    (Status::Done, 0, None),
    (Status::Usage, 2, None),
    (Status::ReadFault, 3, None),
    (Status::SayFault, 4, None),
    (Status::DeviceFault, 5, None),
    (Status::NoMemory, 6, None),
    (Status::NotAStore, 7, None),
    (Status::NotEmpty(1), 8, Some(1)),
    (Status::TooLong(2_147_483_648), 10, Some(2_147_483_648)),
];

#[test]
fn tells_the_number_of_a_status(rt: HostRuntime) {
    for (status, number, value) in NUMBERS {
        assert_eq!(rt; status.number(), *number);
        assert_eq!(rt; status.value(), *value);
    }
}
