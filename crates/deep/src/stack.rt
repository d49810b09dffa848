// The stack that the planner has here: 2 MiB at most. A program cannot lower its own limit, so it takes up
// what the system allows above that, in blocks, before it plans.
use planner::plan::plan;
use searching::reply::Reply;
use std::fs;
use std::rt::Files;

// The bytes that are left to the planner.
const LEFT: u64 = 2_097_152;

// What a process usually has: 8 MiB. It is taken for the limit where the system names none, or 24 MiB and
// more, so that no more is taken up; then more than 2 MiB may be left.
const USUAL: u64 = 8_388_608;

const UNTOLD: u64 = 25_165_824;

// The bytes of stack that a call of `plan_below` takes at least: a block, and 704 bytes beside it as Rattle's own
// compiler builds it. LLVM takes 752 beside it, so that there 48 bytes less are left for each call.
const CALL: u64 = 65_536;

// The bytes of a block.
const BLOCK: usize = 64_832;

// The bytes of stack that the system allows this process, as it tells them in a file; the usual where the file names
// none, or too many.
fn allowed(rt: &(impl Files + Alloc)) -> u64 {
    let limits = fs::read_to_string(rt, "/proc/self/limits").ok();
    let told = limits.and_then(|limits| soft_limit(limits.as_str()));
    told.filter(|bytes| *bytes < UNTOLD).unwrap_or(USUAL)
}

// The soft limit of the stack, the first word behind its name in the file. None where it is no number.
fn soft_limit(limits: &str) -> Option<u64> {
    let mut lines = limits.lines();
    let words = lines.find_map(|line| line.strip_prefix("Max stack size"))?;
    words.split_whitespace().next()?.parse::<u64>().ok()
}

// How many blocks, beside one that the last call has and does not use, fill what is allowed but for what is
// left to the planner, the last one wholly or in part.
fn blocks(allowed: u64) -> u64 {
    if allowed <= LEFT {
        return 0;
    }
    (allowed - LEFT + 65_535) / CALL - 1
}

// Copies the first 64 bytes of a block, where there is room for them.
fn take_over(answer: &mut [u8], block: &[u8; BLOCK]) {
    if let Some(front) = answer.get_mut(..64) {
        front.copy_from_slice(&block[..64]);
    }
}

// Plans below so many blocks. Each block is the buffer of the call below it, so that it must stand on the
// stack while that call goes on.
fn plan_below(blocks: u64, input: &[u8], answer: &mut [u8]) -> Reply {
    if blocks == 0 {
        return plan(input, answer, 1_000_000);
    }
    let mut block = [0u8; BLOCK];
    let reply = plan_below(blocks - 1, input, &mut block);
    take_over(answer, &block);
    reply
}

// Plans with 2 MiB of stack at most.
pub(crate) fn plan_in_little_stack(
    rt: &(impl Files + Alloc),
    input: &[u8],
    answer: &mut [u8],
) -> Reply {
    plan_below(blocks(allowed(rt)), input, answer)
}
