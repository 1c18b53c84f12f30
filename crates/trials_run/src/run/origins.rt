// Whole scripts of origins and their totals, and of what the store holds.
ghost use Rattle.std.specs.Prelude.{◌≤◌};

use super::{expect_said, stored, tried};
use std::alloc::{AllocError, Global};
use std::test::Fail;

pub(super) const ORIGINS: &[(&[u8], &[u8])] = &[
    // A page of the origin is enough, and need not have the address.
    (
        b"visit\thttps://www.mozilla.org/\t1\t0\n\
          origin\thttps://www.mozilla.org/x\n\
          origin\thttp://www.mozilla.org/\n",
        b"visit\t1\tpage\t1\tfrecency\t100\n\
          origin\thttps://\twww.mozilla.org\tgro.allizom.www.\t100\t1\t1\n\
          refused\t4\n",
    ),
    // Two origins just at their mean.
    (
        b"visit\thttps://mozilla.org/\t1\t0\n\
          visit\thttps://example.org/\t1\t0\n\
          origin\thttps://mozilla.org/\n",
        b"visit\t1\tpage\t1\tfrecency\t100\n\
          visit\t2\tpage\t2\tfrecency\t100\n\
          origin\thttps://\tmozilla.org\tgro.allizom.\t100\t1\t1\n",
    ),
    // Two prefixes, ports, an IPv6 host, none, `www.` alone and twice: seven with a total of 100.
    (
        b"visit\thttps://a.example/\t1\t0\n\
          visit\thttp://a.example/\t9\t0\n\
          visit\thttps://a.example:8080/\t1\t0\n\
          visit\thttps://[2001:db8::1]:8080/x\t1\t0\n\
          visit\tmailto:x@a.example\t1\t0\n\
          visit\thttps://www./\t1\t0\n\
          visit\thttps://www.www.a.example/\t1\t0\n\
          visit\thttps://www.a.example/\t1\t0\n\
          visit\thttps://a.example/b\t7\t0\n\
          origin\thttps://a.example/\n\
          origin\thttp://a.example/\n\
          origin\thttps://a.example:8080/y\n\
          origin\thttps://[2001:db8::1]:8080/\n\
          origin\tmailto:y@a.example\n\
          origin\thttps://www./x\n\
          origin\thttps://www.www.a.example/\n\
          origin\thttps://www.a.example/\n\
          stats\n\
          origin\thttps://b.example/\n\
          origin\tno url\n",
        b"visit\t1\tpage\t1\tfrecency\t100\n\
          visit\t2\tpage\t2\tfrecency\t0\n\
          visit\t3\tpage\t3\tfrecency\t100\n\
          visit\t4\tpage\t4\tfrecency\t100\n\
          visit\t5\tpage\t5\tfrecency\t100\n\
          visit\t6\tpage\t6\tfrecency\t100\n\
          visit\t7\tpage\t7\tfrecency\t100\n\
          visit\t8\tpage\t8\tfrecency\t100\n\
          visit\t9\tpage\t9\tfrecency\t0\n\
          origin\thttps://\ta.example\telpmaxe.a.\t100\t2\t1\n\
          origin\thttp://\ta.example\telpmaxe.a.\t0\t1\t1\n\
          origin\thttps://\ta.example:8080\telpmaxe.a.\t100\t1\t1\n\
          origin\thttps://\t[2001:db8::1]:8080\t]1::8bd:1002[.\t100\t1\t1\n\
          origin\tmailto:\t\t.\t100\t1\t0\n\
          origin\thttps://\twww.\t.www.\t100\t1\t1\n\
          origin\thttps://\twww.www.a.example\telpmaxe.a.www.www.\t100\t1\t1\n\
          origin\thttps://\twww.a.example\telpmaxe.a.www.\t100\t1\t1\n\
          stats\tpages\t9\tvisits\t9\titems\t6\torigins\t7\tsum\t700\tslots\t41\n\
          refused\t4\n\
          refused\t1\n",
    ),
    // 75 and 75 are at their mean; with 100 beside them they are below it.
    (
        b"visit\thttps://a.example/\t3\t0\n\
          visit\thttps://b.example/\t3\t0\n\
          origin\thttps://a.example/\n\
          visit\thttps://c.example/\t1\t0\n\
          origin\thttps://a.example/\n\
          origin\thttps://c.example/\n",
        b"visit\t1\tpage\t1\tfrecency\t75\n\
          visit\t2\tpage\t2\tfrecency\t75\n\
          origin\thttps://\ta.example\telpmaxe.a.\t75\t1\t1\n\
          visit\t3\tpage\t3\tfrecency\t100\n\
          origin\thttps://\ta.example\telpmaxe.a.\t75\t1\t0\n\
          origin\thttps://\tc.example\telpmaxe.c.\t100\t1\t1\n",
    ),
    // -1 never counts.
    (
        b"visit\thttps://a.example/\t1\t0\n\
          visit\thttps://a.example/\t9\t1\n\
          visit\thttps://a.example/\t9\t2\n\
          visit\thttps://a.example/\t9\t3\n\
          visit\thttps://a.example/\t9\t4\n\
          visit\thttps://a.example/\t9\t5\n\
          visit\thttps://a.example/\t9\t6\n\
          visit\thttps://a.example/\t9\t7\n\
          visit\thttps://a.example/\t9\t8\n\
          visit\thttps://a.example/\t9\t9\n\
          visit\thttps://a.example/\t9\t10\n\
          origin\thttps://a.example/\n\
          stats\n",
        b"visit\t1\tpage\t1\tfrecency\t100\n\
          visit\t2\tpage\t1\tfrecency\t50\n\
          visit\t3\tpage\t1\tfrecency\t34\n\
          visit\t4\tpage\t1\tfrecency\t25\n\
          visit\t5\tpage\t1\tfrecency\t20\n\
          visit\t6\tpage\t1\tfrecency\t17\n\
          visit\t7\tpage\t1\tfrecency\t15\n\
          visit\t8\tpage\t1\tfrecency\t13\n\
          visit\t9\tpage\t1\tfrecency\t12\n\
          visit\t10\tpage\t1\tfrecency\t10\n\
          visit\t11\tpage\t1\tfrecency\t-1\n\
          origin\thttps://\ta.example\telpmaxe.a.\t0\t1\t0\n\
          stats\tpages\t1\tvisits\t11\titems\t6\torigins\t0\tsum\t0\tslots\t20\n",
    ),
    // An origin whose last page went, and came again.
    (
        b"visit\thttps://a.example/\t1\t0\n\
          visit\thttps://b.example/\t2\t0\n\
          visit\thttps://c.example/\t3\t0\n\
          forget\thttps://a.example/\n\
          origin\thttps://a.example/\n\
          origin\thttps://b.example/\n\
          origin\thttps://c.example/\n\
          visit\thttps://a.example/x\t1\t1\n\
          origin\thttps://a.example/\n\
          stats\n",
        b"visit\t1\tpage\t1\tfrecency\t100\n\
          visit\t2\tpage\t2\tfrecency\t2000\n\
          visit\t3\tpage\t3\tfrecency\t75\n\
          removed\tvisits\t1\tpages\t1\n\
          refused\t4\n\
          origin\thttps://\tb.example\telpmaxe.b.\t2000\t1\t1\n\
          origin\thttps://\tc.example\telpmaxe.c.\t75\t1\t0\n\
          visit\t4\tpage\t4\tfrecency\t100\n\
          origin\thttps://\ta.example\telpmaxe.a.\t100\t1\t0\n\
          stats\tpages\t3\tvisits\t3\titems\t6\torigins\t3\tsum\t2175\tslots\t18\n",
    ),
    // What the store holds, after each command.
    (
        b"stats\n\
          visit\thttps://a.example/\t1\t0\n\
          stats\n\
          title\thttps://a.example/\tA\n\
          stats\n\
          bookmark\t2\tend\thttps://b.example/\tB\t0\n\
          stats\n\
          visit\thttps://b.example/\t2\t86400000000\n\
          stats\n\
          tag\thttps://c.example/\tRed\t0\n\
          stats\n\
          folder\t2\t0\tF\t0\n\
          stats\n\
          separator\t10\tend\t0\n\
          stats\n\
          move\t7\t10\t0\t0\n\
          stats\n\
          retitle\t10\t\t0\n\
          stats\n\
          visit\thttps://d.example/\t5\t1\t1\n\
          stats\n\
          day\t20\n\
          stats\n\
          unvisit\t3\n\
          stats\n\
          expire\t1\n\
          stats\n\
          untag\thttps://c.example/\tred\n\
          stats\n\
          trim\t0\n\
          stats\n\
          remove\t10\n\
          stats\n\
          forget\thttps://b.example/\n\
          stats\n\
          page\thttps://b.example/\n\
          list\t2\n\
          stats\n\
          stats\t\n",
        b"stats\tpages\t0\tvisits\t0\titems\t6\torigins\t0\tsum\t0\tslots\t6\n\
          visit\t1\tpage\t1\tfrecency\t100\n\
          stats\tpages\t1\tvisits\t1\titems\t6\torigins\t1\tsum\t100\tslots\t10\n\
          ok\n\
          stats\tpages\t1\tvisits\t1\titems\t6\torigins\t1\tsum\t100\tslots\t11\n\
          item\t7\n\
          stats\tpages\t2\tvisits\t1\titems\t7\torigins\t2\tsum\t240\tslots\t16\n\
          visit\t2\tpage\t2\tfrecency\t2075\n\
          stats\tpages\t2\tvisits\t2\titems\t7\torigins\t2\tsum\t2175\tslots\t17\n\
          ok\n\
          stats\tpages\t3\tvisits\t2\titems\t9\torigins\t3\tsum\t2315\tslots\t23\n\
          item\t10\n\
          stats\tpages\t3\tvisits\t2\titems\t10\torigins\t3\tsum\t2315\tslots\t25\n\
          item\t11\n\
          stats\tpages\t3\tvisits\t2\titems\t11\torigins\t3\tsum\t2315\tslots\t26\n\
          ok\n\
          stats\tpages\t3\tvisits\t2\titems\t11\torigins\t3\tsum\t2315\tslots\t26\n\
          ok\n\
          stats\tpages\t3\tvisits\t2\titems\t11\torigins\t3\tsum\t2315\tslots\t25\n\
          visit\t3\tpage\t4\tfrecency\t100\n\
          stats\tpages\t4\tvisits\t3\titems\t11\torigins\t4\tsum\t2340\tslots\t29\n\
          day\t20\tchanged\t3\n\
          stats\tpages\t4\tvisits\t3\titems\t11\torigins\t4\tsum\t1241\tslots\t29\n\
          removed\tvisits\t1\tpages\t1\n\
          stats\tpages\t3\tvisits\t2\titems\t11\torigins\t3\tsum\t1228\tslots\t25\n\
          removed\tvisits\t1\tpages\t1\n\
          stats\tpages\t2\tvisits\t1\titems\t11\torigins\t2\tsum\t1178\tslots\t20\n\
          ok\n\
          stats\tpages\t1\tvisits\t1\titems\t9\torigins\t1\tsum\t1038\tslots\t14\n\
          removed\tvisits\t0\tpages\t0\n\
          stats\tpages\t1\tvisits\t1\titems\t9\torigins\t1\tsum\t1038\tslots\t14\n\
          ok\n\
          stats\tpages\t1\tvisits\t1\titems\t6\torigins\t1\tsum\t1000\tslots\t10\n\
          removed\tvisits\t1\tpages\t1\n\
          stats\tpages\t0\tvisits\t0\titems\t6\torigins\t0\tsum\t0\tslots\t6\n\
          refused\t4\n\
          rows\t0\n\
          stats\tpages\t0\tvisits\t0\titems\t6\torigins\t0\tsum\t0\tslots\t6\n\
          refused\t14\t7\n",
    ),
];

#[test]
fn says_the_totals_of_origins(rt: HostRuntime) {
    for (script, said) in ORIGINS {
        expect_said(&rt, tried(rt.alloc(), script, 1_000_000), said);
        expect_said(&rt, tried(rt.alloc(), script, 7), said);
        expect_said(&rt, stored(rt.alloc(), script), said);
    }
}

// A visit to a URL of so many bytes, and what the store holds then.
fn visit_and_stats(alloc: Global, bytes: usize) -> Result<Vec<u8>, AllocError>
    requires { 18 ≤ bytes }
{
    let mut script = Vec::from_slice(alloc, b"visit\thttps://a.example/")?;
    for _ in 18..bytes {
        script.push(b'x')?;
    }
    script.extend_from_slice(b"\t1\t0\nstats\n")?;
    Ok(script)
}

#[test]
fn counts_the_slots_of_the_longest_url(rt: HostRuntime) -> Result<(), Fail> {
    let alloc = rt.alloc();
    let longest = visit_and_stats(alloc, 65_536)?;
    let said = b"visit\t1\tpage\t1\tfrecency\t100\n\
        stats\tpages\t1\tvisits\t1\titems\t6\torigins\t1\tsum\t100\tslots\t556\n";
    expect_said(&rt, tried(alloc, &longest, 1_000_000), said);
    let longer = visit_and_stats(alloc, 65_537)?;
    let said = b"refused\t1\n\
        stats\tpages\t0\tvisits\t0\titems\t6\torigins\t0\tsum\t0\tslots\t6\n";
    expect_said(&rt, tried(alloc, &longer, 1_000_000), said);
    Ok(())
}
