// The text of the blocks of a trace.
ghost use Rattle.std.specs.Prelude.{◌≡◌};
ghost use Rattle.trace_layout.specs.Trace.{count_in};
ghost use Rattle.state.specs.Refusal.{answer_with};
ghost use Rattle.trace_text.specs.Text.{text_from};
ghost use Rattle.trace_text.specs.Buffers.{buffers_with};
ghost use Rattle.trace_text.specs.Calls.{TextAt, BlockRunnable, RanIs, Blockable, AddedIs, Traceable};

use super::line::Text;
use block::lists::{Block, Outputs};
use state::equaliser::Equaliser;
use state::refusal::Refusal;

const BLOCK: usize = Equaliser::BLOCK as usize;

// The block whose first sample has this place; Y, ξ and decision go to lent lists.
pub fn run_block(
    t: &[u8],
    e: Equaliser,
    first: usize,
    y: &mut [i32],
    xi: &mut [u8],
    decision: &mut [i8],
) -> Result<Equaliser, Refusal>
    requires { BlockRunnable t.now e first }
    ensures { RanIs e (buffers_with t.now first y.old xi.old decision.old) (answer_with e result) y.new xi.new decision.new }
{
    let n = usize::from(e.n);
    let mut m = [0i16; BLOCK];
    let mut gains = [0u8; BLOCK];
    let mut entries = [0i8; BLOCK];
    trace_layout::read::block(t, first, &mut m[..n], &mut gains[..n], &mut entries[..n]);
    let block = Block {
        m: &m[..n],
        gains: &gains[..n],
        entries: &entries[..n],
    };
    let mut z = [0i32; BLOCK];
    let mut theta = [0u8; BLOCK];
    let mut outputs = Outputs {
        y,
        xi,
        decision,
        z: &mut z[..n],
        theta: &mut theta[..n],
    };
    station::run::run(e, block, &mut outputs)
}

// The lines of a block, or the line of its refusal.
pub fn block_text(t: &[u8], e: Equaliser, i: usize, text: &mut Text) -> Result<Equaliser, Refusal>
    requires { Blockable t.now e i text.old.end text.old.out.now }
    ensures same_reference { text.new.out.ghost_name ≡ text.old.out.ghost_name }
    ensures added { AddedIs t.now e i text.old.end result text.old.out.now text.new.end text.new.out.now }
{
    let n = usize::from(e.n);
    let first = i * n;
    let mut y = [0i32; BLOCK];
    let mut xi = [0u8; BLOCK];
    let mut decision = [0i8; BLOCK];
    let next = run_block(t, e, first, &mut y[..n], &mut xi[..n], &mut decision[..n]);
    match next {
        Ok(_) => text.lines(first as u32, &y[..n], &xi[..n], &decision[..n]),
        Err(refusal) => text.stop_line(u8::from(refusal), i as u32),
    }
    next
}

// The blocks one after the other, up to a refusal.
pub fn all_blocks(t: &[u8], e: Equaliser, text: &mut Text)
    requires { Traceable t.now e text.old.end text.old.out.now }
    ensures same_reference { text.new.out.ghost_name ≡ text.old.out.ghost_name }
    ensures text { TextAt text.old.end (text_from t.now (count_in t.now) 0 e) text.old.out.now text.new.end text.new.out.now }
{
    let mut state = e;
    for i in 0..trace_layout::read::count_in(t) {
        match block_text(t, state, i, text) {
            Ok(next) => state = next,
            Err(_) => return,
        }
    }
}
