// Worked rows of whole scripts.
use super::{expect_said, stored, tried};
use pl_desk::{MemDesk, MemSource};
use places::Status;
use std::test::Fail;
use trials_desks::in_memory;

pub(super) const ROWS: &[(&[u8], &[u8])] = &[
    (b"", b""),
    (
        b"visit\thttps://www.mozilla.org/\t1\t0\n",
        b"visit\t1\tpage\t1\tfrecency\t100\n",
    ),
    // Two visits to one page.
    (
        b"visit\thttps://a.example/\t1\t0\nvisit\thttps://a.example/\t1\t0\n",
        b"visit\t1\tpage\t1\tfrecency\t100\nvisit\t2\tpage\t1\tfrecency\t200\n",
    ),
    // One that was typed.
    (
        b"visit\thttps://a.example/\t2\t0\n",
        b"visit\t1\tpage\t1\tfrecency\t2000\n",
    ),
    // A download is no visit that counts.
    (
        b"visit\thttps://a.example/\t7\t0\n",
        b"visit\t1\tpage\t1\tfrecency\t0\n",
    ),
    // A reload takes part in the mean and does not count.
    (
        b"visit\thttps://a.example/\t1\t0\nvisit\thttps://a.example/\t9\t1\n",
        b"visit\t1\tpage\t1\tfrecency\t100\nvisit\t2\tpage\t1\tfrecency\t50\n",
    ),
    // Two pages, the second under two spellings of one address.
    (
        b"visit\thttps://a.example/\t2\t0\n\
          visit\tHTTPS://B.example\t1\t1\n\
          visit\thttps://b.example/\t1\t1\n",
        b"visit\t1\tpage\t1\tfrecency\t2000\n\
          visit\t2\tpage\t2\tfrecency\t100\n\
          visit\t3\tpage\t2\tfrecency\t200\n",
    ),
    // A refused line changes nothing, and the run goes on.
    (
        b"visit\tabout:blank\t1\t0\nvisit\tno url\t1\t0\nfrob\nvisit\thttps://a.example/\t1\t0",
        b"refused\t2\nrefused\t1\nrefused\t14\t1\nvisit\t1\tpage\t1\tfrecency\t100\n",
    ),
    (
        b"visit\thttps://a.example/\t10\t0\n\
          title\thttps://a.example/\n\
          visit\tno url\t1\t0\n\
          visit\thttps://a.example/\t1\t0\t9\n\
          # x\n\
          \n",
        b"refused\t14\t26\nrefused\t14\t25\nrefused\t1\nrefused\t3\t9\n",
    ),
    (
        b"days\t1\nvisit\thttps://a.example/\t1\t253402300800000000\n",
        b"refused\t14\t1\nrefused\t16\n",
    ),
    // The last moment of 9999, far ahead of the store's day.
    (
        b"visit\thttps://a.example/\t1\t253402300799999999\n",
        b"visit\t1\tpage\t1\tfrecency\t100\n",
    ),
    // Ten visits of 100 each are the latest, of 11 and then 12 that count.
    (
        b"visit\thttps://a.example/\t2\t0\n\
          visit\thttps://a.example/\t1\t1\n\
          visit\thttps://a.example/\t1\t2\n\
          visit\thttps://a.example/\t1\t3\n\
          visit\thttps://a.example/\t1\t4\n\
          visit\thttps://a.example/\t1\t5\n\
          visit\thttps://a.example/\t1\t6\n\
          visit\thttps://a.example/\t1\t7\n\
          visit\thttps://a.example/\t1\t8\n\
          visit\thttps://a.example/\t1\t9\n\
          visit\thttps://a.example/\t1\t10\n\
          visit\thttps://a.example/\t2\t0\n",
        b"visit\t1\tpage\t1\tfrecency\t2000\n\
          visit\t2\tpage\t1\tfrecency\t2100\n\
          visit\t3\tpage\t1\tfrecency\t2200\n\
          visit\t4\tpage\t1\tfrecency\t2300\n\
          visit\t5\tpage\t1\tfrecency\t2400\n\
          visit\t6\tpage\t1\tfrecency\t2500\n\
          visit\t7\tpage\t1\tfrecency\t2600\n\
          visit\t8\tpage\t1\tfrecency\t2700\n\
          visit\t9\tpage\t1\tfrecency\t2800\n\
          visit\t10\tpage\t1\tfrecency\t2900\n\
          visit\t11\tpage\t1\tfrecency\t1100\n\
          visit\t12\tpage\t1\tfrecency\t1200\n",
    ),
    // 100 over 3, 4, .., 10 is rounded up, and then the latest ten add nothing.
    (
        b"visit\thttps://a.example/\t1\t0\n\
          visit\thttps://a.example/\t9\t1\n\
          visit\thttps://a.example/\t9\t2\n\
          visit\thttps://a.example/\t9\t3\n\
          visit\thttps://a.example/\t9\t4\n\
          visit\thttps://a.example/\t9\t5\n\
          visit\thttps://a.example/\t9\t6\n\
          visit\thttps://a.example/\t9\t7\n\
          visit\thttps://a.example/\t9\t8\n\
          visit\thttps://a.example/\t9\t9\n\
          visit\thttps://a.example/\t9\t10\n",
        b"visit\t1\tpage\t1\tfrecency\t100\n\
          visit\t2\tpage\t1\tfrecency\t50\n\
          visit\t3\tpage\t1\tfrecency\t34\n\
          visit\t4\tpage\t1\tfrecency\t25\n\
          visit\t5\tpage\t1\tfrecency\t20\n\
          visit\t6\tpage\t1\tfrecency\t17\n\
          visit\t7\tpage\t1\tfrecency\t15\n\
          visit\t8\tpage\t1\tfrecency\t13\n\
          visit\t9\tpage\t1\tfrecency\t12\n\
          visit\t10\tpage\t1\tfrecency\t10\n\
          visit\t11\tpage\t1\tfrecency\t-1\n",
    ),
    // A typed page leads to a redirect, and counts 25 from then on.
    (
        b"visit\thttps://a.example/\t2\t0\n\
          visit\thttps://b.example/\t5\t1\t1\n\
          page\thttps://a.example/\n\
          page\thttps://b.example/\n",
        b"visit\t1\tpage\t1\tfrecency\t2000\n\
          visit\t2\tpage\t2\tfrecency\t2000\n\
          page\t1\t25\t1\t0\t1\t1\t0\thttps://a.example/\t\t\n\
          page\t2\t2000\t1\t1\t0\t0\t0\thttps://b.example/\t\t\n",
    ),
    (
        b"visit\thttps://a.example/\t2\t0\n\
          visit\thttps://b.example/\t5\t1\t1\n\
          page\thttps://a.example/",
        b"visit\t1\tpage\t1\tfrecency\t2000\n\
          visit\t2\tpage\t2\tfrecency\t2000\n\
          page\t1\t25\t1\t0\t1\t1\t0\thttps://a.example/\t\t\n",
    ),
    // A source that is no visit, and one that is no id.
    (
        b"visit\thttps://a.example/\t1\t0\t0\n\
          visit\thttps://a.example/\t1\t0\t4294967295\n\
          visit\thttps://a.example/\t1\t0\t4294967296\n",
        b"refused\t3\t0\nrefused\t3\t4294967295\nrefused\t14\t30\n",
    ),
    // A page whose visits add nothing, and one that was left by a redirect to itself.
    (
        b"visit\thttps://a.example/\t9\t0\n\
          visit\thttps://b.example/\t5\t1\t1\n\
          visit\thttps://b.example/\t6\t2\t2\n\
          page\thttps://a.example/\n\
          page\thttps://b.example/\n",
        b"visit\t1\tpage\t1\tfrecency\t0\n\
          visit\t2\tpage\t2\tfrecency\t-1\n\
          visit\t3\tpage\t2\tfrecency\t75\n\
          page\t1\t0\t0\t0\t0\t1\t0\thttps://a.example/\t\t\n\
          page\t2\t75\t2\t2\t0\t0\t0\thttps://b.example/\t\t\n",
    ),
    // Without a visit to it an address has no page, whatever is asked.
    (
        b"page\thttps://a.example/\ntitle\thttps://a.example/\tA\npage\tabout:blank\n",
        b"refused\t4\nrefused\t4\nrefused\t4\n",
    ),
    // The date of the latest visit, and not that of the last one. A title is kept, may be the same
    // again, and may be none.
    (
        b"visit\thttps://a.example/\t1\t9\n\
          visit\thttps://a.example/\t1\t3\n\
          title\thttps://A.example\ta\\tb\\n\\r\\\\\n\
          title\thttps://a.example/\ta\\tb\\n\\r\\\\\n\
          page\thttps://a.example/\n\
          title\thttps://a.example/\t\n\
          page\thttps://a.example/\n",
        b"visit\t1\tpage\t1\tfrecency\t100\n\
          visit\t2\tpage\t1\tfrecency\t200\n\
          ok\n\
          ok\n\
          page\t1\t200\t2\t9\t0\t0\t0\thttps://a.example/\ta\\tb\\n\\r\\\\\t\n\
          ok\n\
          page\t1\t200\t2\t9\t0\t0\t0\thttps://a.example/\t\t\n",
    ),
    // A query is hidden, a download shows its page without counting, and one embedded visit hides.
    (
        b"visit\tplace:sort=8\t1\t0\n\
          visit\thttps://a.example/\t7\t5\n\
          visit\thttps://b.example/\t4\t6\n\
          page\tplace:sort=8\n\
          page\thttps://a.example/\n\
          page\thttps://b.example/\n",
        b"visit\t1\tpage\t1\tfrecency\t100\n\
          visit\t2\tpage\t2\tfrecency\t0\n\
          visit\t3\tpage\t3\tfrecency\t0\n\
          page\t1\t100\t1\t0\t0\t1\t0\tplace:sort=8\t\t\n\
          page\t2\t0\t0\t5\t0\t0\t0\thttps://a.example/\t\t\n\
          page\t3\t0\t0\t6\t0\t1\t0\thttps://b.example/\t\t\n",
    ),
    // Embedded visits alone add nothing.
    (
        b"visit\thttps://a.example/\t4\t0\nvisit\thttps://a.example/\t8\t0\n",
        b"visit\t1\tpage\t1\tfrecency\t0\nvisit\t2\tpage\t1\tfrecency\t0\n",
    ),
    // A bookmark adds 75 to what a visit counts.
    (
        b"bookmark\t2\tend\thttps://a.example/\tA\t0\nvisit\thttps://a.example/\t2\t0\n",
        b"item\t7\nvisit\t1\tpage\t1\tfrecency\t2075\n",
    ),
    // Folders within folders, and a separator that moves.
    (
        b"folder\t2\tend\tF\t0\n\
          folder\t7\tend\tG\t0\n\
          folder\t8\tend\tH\t0\n\
          move\t7\t9\tend\t0\n\
          separator\t7\t1\t0\n\
          separator\t7\t3\t0\n\
          move\t10\t7\t2\t0\n\
          move\t10\t7\t0\t0\n\
          retitle\t8\tK\t0\n\
          list\t7\n\
          remove\t8\n\
          list\t7\n",
        b"item\t7\n\
          item\t8\n\
          item\t9\n\
          refused\t9\t7\n\
          item\t10\n\
          refused\t8\t3\t2\n\
          refused\t8\t2\t1\n\
          ok\n\
          ok\n\
          rows\t2\nseparator\t10\t\t\nfolder\t8\tK\t\n\
          ok\n\
          rows\t1\nseparator\t10\t\t\n",
    ),
    // A bookmark of an address whose visits are not recorded.
    (
        b"visit\tabout:blank\t1\t0\n\
          bookmark\t5\t0\tjavascript:void(0)\tJ\t0\n\
          page\tjavascript:void(0)\n",
        b"refused\t2\nitem\t7\npage\t1\t140\t0\t-\t0\t0\t1\tjavascript:void(0)\t\t\n",
    ),
];

#[test]
fn says_the_rows_in_any_pieces(rt: HostRuntime) {
    for (script, said) in ROWS {
        expect_said(&rt, tried(rt.alloc(), script, 1_000_000), said);
        expect_said(&rt, tried(rt.alloc(), script, 1), said);
        expect_said(&rt, tried(rt.alloc(), script, 7), said);
        expect_said(&rt, stored(rt.alloc(), script), said);
    }
}

const OTHER_WORDS: &[&[&str]] = &[
    &[],
    &["run"],
    &["new"],
    &["try", "s"],
    &["run", "s", "s"],
    &["Try"],
    &["old", "s"],
];

#[test]
fn refuses_other_words(rt: HostRuntime) -> Result<(), Fail> {
    let alloc = rt.alloc();
    for words in OTHER_WORDS {
        let mut input = MemSource::over(alloc, b"visit", 1, &[])?;
        let mut desk = MemDesk::holding(alloc, &[], &[])?;
        let status = in_memory(alloc, words, &mut input, &mut desk);
        assert_eq!(rt; status, Status::Usage);
        assert_eq!(rt; desk.calls(), 0);
    }
    Ok(())
}
