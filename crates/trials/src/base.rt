// The types of `pl_base`.

use pl_base::{PAGE_SIZE, Touched, Txt};
use std::test::Fail;

#[test]
fn lists_pages_with_their_images(rt: HostRuntime) -> Result<(), Fail> {
    let mut touched = Touched::empty(rt.alloc(), 3, 9);
    assert_eq!(rt; touched.count(), 0);
    touched.push(1, &[7; PAGE_SIZE])?;
    touched.push(4, &[0; PAGE_SIZE])?;
    touched.push(8, &[255; PAGE_SIZE])?;
    assert_eq!(rt; (touched.before(), touched.after()), (3, 9));
    assert_eq!(rt; touched.count(), 3);
    for (index, page, byte) in [(0, 1, 7), (1, 4, 0), (2, 8, 255)] {
        assert!(rt; index < touched.count());
        assert_eq!(rt; touched.page(index), page);
        assert_eq!(rt; touched.image(index), [byte; PAGE_SIZE].as_slice());
    }
    Ok(())
}

#[test]
fn copies_a_text(rt: HostRuntime) -> Result<(), Fail> {
    let text = Txt::copied(rt.alloc(), "Café")?;
    assert_eq!(rt; text.as_str(), "Café");
    Ok(())
}
