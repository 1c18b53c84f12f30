// Lines and the columns at which they are refused, counted by hand.
use pl_base::Refusal;
use pl_script::{LineError, line};

const REFUSED: &[(&[u8], u32)] = &[
    (b"Folder\t2\tend\tF\t0", 1),
    // The parent stands at column 8, the position at 10, the title at 14.
    (b"folder", 7),
    (b"folder\t2", 9),
    (b"folder\t2\tend", 13),
    (b"folder\t2\tend\tF", 15),
    (b"folder\t02\tend\tF\t0", 8),
    (b"folder\t4294967296\tend\tF\t0", 8),
    (b"folder\t2\tEnd\tF\t0", 10),
    (b"folder\t2\t-1\tF\t0", 10),
    (b"folder\t2\t4294967296\tF\t0", 10),
    (b"folder\t2\t\tF\t0", 10),
    (b"folder\t2\tend\t\\x\t0", 14),
    (b"folder\t2\tend\tF\tx", 16),
    (b"folder\t2\tend\tF\t0\t", 18),
    // An address of 18 bytes stands at column 16.
    (b"bookmark\t2\tend\thttps://a.example/\tA", 36),
    (b"bookmark\t2\tend\t\xff\tA\t0", 16),
    (b"bookmark\t2\tend\thttps://a.example/\t\\\t0", 35),
    (b"separator\t2\tend\t", 17),
    (b"separator\t2\tend\tS\t0", 17),
    (b"move\t7\t2\tend", 13),
    (b"move\tx\t2\tend\t0", 6),
    (b"move\t7\tx\tend\t0", 8),
    (b"move\t7\t2\tx\t0", 10),
    (b"move\t7\t2\tend\t0\t0", 16),
    (b"retitle\t7\tA", 12),
    (b"retitle\t7\t\\q\t0", 11),
    (b"remove", 7),
    (b"remove\t", 8),
    (b"remove\t7\t", 10),
    (b"list\t-", 6),
    (b"tag\thttps://a.example/\tRed", 27),
    (b"tag\thttps://a.example/\t\\x\t0", 24),
    (b"tag\thttps://a.example/\tRed\t", 28),
    (b"tag\thttps://a.example/\t,\t0\t", 28),
    (b"untag\thttps://a.example/", 25),
    (b"untag\thttps://a.example/\tRed\t0", 30),
    (b"list\t1\t1", 8),
];

#[test]
fn refuses_lines_at_their_columns(rt: HostRuntime) {
    for (bytes, column) in REFUSED {
        let refused = Some(LineError::Refused(Refusal::BadLine(*column)));
        assert_eq!(rt; line(rt.alloc(), bytes).err(), refused, "at {column}");
    }
}

// A date is asked before an address, an address before a tag, and the form of the line first.
const CAUSES: &[(&[u8], Refusal)] = &[
    (b"bookmark\t2\tend\tno url\tA\t0", Refusal::BadUrl),
    (
        b"bookmark\t2\tend\tno url\tA\t253402300800000000",
        Refusal::BadDate,
    ),
    (
        b"bookmark\t2\tend\tno url\tA\t253402300800000000\t",
        Refusal::BadLine(44),
    ),
    (b"folder\t2\tend\tF\t253402300800000000", Refusal::BadDate),
    (b"separator\t2\t0\t253402300800000000", Refusal::BadDate),
    (b"move\t7\t2\t0\t253402300800000000", Refusal::BadDate),
    (b"retitle\t7\tA\t253402300800000000", Refusal::BadDate),
    (b"tag\tno url\t,\t253402300800000000", Refusal::BadDate),
    (b"tag\tno url\t,\t0", Refusal::BadUrl),
    (b"tag\thttps://a.example/\t,\t0", Refusal::BadTag),
    (b"tag\thttps://a.example/\t \\t\t0", Refusal::BadTag),
    (b"tag\thttps://a.example/\t\t0", Refusal::BadTag),
    (b"untag\tno url\t", Refusal::BadUrl),
    (b"untag\thttps://a.example/\ta,b", Refusal::BadTag),
];

#[test]
fn refuses_by_the_first_cause(rt: HostRuntime) {
    for (bytes, refusal) in CAUSES {
        let refused = Some(LineError::Refused(*refusal));
        assert_eq!(rt; line(rt.alloc(), bytes).err(), refused);
    }
}
