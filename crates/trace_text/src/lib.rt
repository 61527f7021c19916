#![tactic(auto)]

// The text of a trace.
ghost use Rattle.trace_text.specs.Text.{trace_text};
ghost use Rattle.trace_text.specs.TextFront.{TextFront};

use line::Text;
use state::equaliser::Equaliser;
use state::refusal::Refusal;
use trace_layout::read::{settings_in, well_formed};

pub mod blocks;
pub mod limits;
pub mod line;

// The text of a trace at the front of lent bytes, without a heap. Answers its length, as its promise says.
pub fn text(trace: &[u8], out: &mut [u8; limits::TEXT]) -> usize
    ensures { TextFront (trace_text trace.now) out.old result out.new }
{
    let mut text = Text { out, end: 0 };
    if well_formed(trace) {
        match Equaliser::set_up(settings_in(trace)) {
            Ok(e) => blocks::all_blocks(trace, e, &mut text),
            Err(refusal) => text.stop_line(u8::from(refusal), 0),
        }
    } else {
        text.stop_line(u8::from(Refusal::Bytes), 0);
    }
    text.end
}
