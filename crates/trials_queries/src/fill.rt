// The group of hosts that is filled in, by hand.
use crate::told::talked;
use pl_store::SLOT_LIMIT;
use std::test::Fail;
use trials_memory::Memory;

// Texts, and the group that begins with them.
const FILLS: &[(&[u8], &str)] = &[
    (b"fill\tmoz", "nofill\n"),
    (
        b"visit\thttps://mozilla.org/\t1\t0",
        "visit\t1\tpage\t1\tfrecency\t100\n",
    ),
    (
        b"visit\thttps://example.org/\t1\t0",
        "visit\t2\tpage\t2\tfrecency\t100\n",
    ),
    (b"fill\tmoz", "fill\tmozilla.org\t100\n"),
    (b"fill\tzzz", "nofill\n"),
    // Upper case, one leading `www.` and two, and nothing left.
    (b"fill\tMOZ", "fill\tmozilla.org\t100\n"),
    (b"fill\tWWW.moz", "fill\tmozilla.org\t100\n"),
    (b"fill\twww.www.moz", "nofill\n"),
    (b"fill\t", "nofill\n"),
    (b"fill\twww.", "nofill\n"),
    (b"fill\twww", "nofill\n"),
    (b"fill\tmozilla.org", "fill\tmozilla.org\t100\n"),
    (b"fill\tmozilla.org/", "nofill\n"),
    // A port is part of the name; of two with one sum the name that is first.
    (
        b"visit\thttps://mozilla.org:8080/\t1\t0",
        "visit\t3\tpage\t3\tfrecency\t100\n",
    ),
    (b"fill\tmoz", "fill\tmozilla.org\t100\n"),
    (b"fill\tmozilla.org:", "fill\tmozilla.org:8080\t100\n"),
    (
        b"visit\thttps://mb.example/\t1\t0",
        "visit\t4\tpage\t4\tfrecency\t100\n",
    ),
    (
        b"visit\thttps://www.ma.example/\t1\t0",
        "visit\t5\tpage\t5\tfrecency\t100\n",
    ),
    (b"fill\tm", "fill\tma.example\t100\n"),
    // Hosts with and without `www.`, and of each prefix, are one group: 300, and the mean is 100.
    (
        b"visit\thttp://mb.example/\t1\t0",
        "visit\t6\tpage\t6\tfrecency\t100\n",
    ),
    (
        b"visit\thttps://www.mb.example/x\t1\t0",
        "visit\t7\tpage\t7\tfrecency\t100\n",
    ),
    (b"fill\tm", "fill\tmb.example\t300\n"),
    // Below the mean: seven origins with 100, and one with 2000.
    (
        b"visit\thttps://big.example/\t2\t0",
        "visit\t8\tpage\t8\tfrecency\t2000\n",
    ),
    (b"fill\tm", "nofill\n"),
    (b"fill\tb", "fill\tbig.example\t2000\n"),
    // Two leading `www.` of a host: one is dropped.
    (
        b"visit\thttps://www.www.twice.example/\t2\t0",
        "visit\t9\tpage\t9\tfrecency\t2000\n",
    ),
    (b"fill\twww.www.t", "fill\twww.twice.example\t2000\n"),
    (b"fill\twww.t", "nofill\n"),
    // A bookmark does not make a group pass.
    (
        b"bookmark\t2\tend\thttps://kept.example/\tK\t0",
        "item\t7\n",
    ),
    (b"fill\tk", "nofill\n"),
];

#[test]
fn groups_are_filled_in(rt: HostRuntime) -> Result<(), Fail> {
    let alloc = rt.alloc();
    talked(&rt, alloc, Memory::opening(alloc, SLOT_LIMIT)?, FILLS)?;
    Ok(())
}
