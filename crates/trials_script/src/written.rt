// What a reply is written as. It is dropped by name, which is cheaper to prove than that it goes at
// the function's end.
use pl_base::{NoMemory, Txt};
use pl_script::reply_text;
use pl_step::Reply;
use std::alloc::Global;
use std::process::Abort;
use std::test::Fail;

fn text_of(alloc: Global, reply: Reply) -> Result<Txt, NoMemory> {
    let text = reply_text(alloc, &reply);
    drop(reply);
    text
}

pub fn expect_text(rt: &impl Abort, alloc: Global, reply: Reply, want: &str) -> Result<(), Fail> {
    let text = text_of(alloc, reply)?;
    assert_eq!(rt; text.as_str(), want);
    Ok(())
}
