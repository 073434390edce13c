// What was seen of a call, as text: each function fills the front of `seen`, or goes on behind its
// first n bytes, and hands back how many bytes there are then.
use drive::results::{Ending, Refusal};
use lines::gathering::{gather, gather_number};
use machine::answers::BoardOrder;
use observed::orders::{gather_end, gather_order};

// `refused 5`.
pub fn refusal_text(seen: &mut [u8], refusal: Refusal) -> usize {
    let n = gather(seen, 0, b"refused ");
    gather_number(seen, n, refusal.number() as u32)
}

// An answer without its byte 13; nothing where the string was silent.
pub fn answer_text(seen: &mut [u8], answer: &[u8]) -> usize {
    match answer {
        [] => 0,
        [text @ .., b'\r'] => gather(seen, 0, text),
        _ => gather(seen, 0, b"an answer without its byte 13"),
    }
}

// `idle 2`.
pub fn ending_text(seen: &mut [u8], ending: Ending) -> usize {
    let n = gather_end(seen, 0, ending.end);
    let m = gather(seen, n, b" ");
    gather_number(seen, m, ending.given.0)
}

// `stand:1,0,0`, `slow:1,0,0` or `run:+,9000,15,+31754,1,0,0`.
pub fn order_text(seen: &mut [u8], ordered: Result<BoardOrder, Refusal>) -> usize {
    match ordered {
        Ok(order) => gather_order(seen, 0, order),
        Err(refusal) => refusal_text(seen, refusal),
    }
}
