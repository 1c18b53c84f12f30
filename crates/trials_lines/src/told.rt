// Lines on a store in memory, and the replies to them, which were worked out by hand.
use std::alloc::Global;
use std::process::Abort;
use std::test::Fail;
use trials_memory::{Memory, answered};

// The store after a line, which has this reply.
pub fn told(
    rt: &impl Abort,
    alloc: Global,
    memory: Memory,
    text: &[u8],
    reply: &str,
) -> Result<Memory, Fail> {
    let (memory, answer) = answered(alloc, memory, text)?;
    if let Some(answer) = answer {
        assert_eq!(rt; answer.as_str(), reply);
    }
    Ok(memory)
}

// The store after these lines, each with its reply.
pub fn talked(
    rt: &impl Abort,
    alloc: Global,
    memory: Memory,
    lines: &[(&[u8], &str)],
) -> Result<Memory, Fail> {
    let mut memory = memory;
    for (text, reply) in lines {
        memory = told(rt, alloc, memory, text, reply)?;
    }
    Ok(memory)
}
