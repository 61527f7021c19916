#![tactic(auto)]

// What the program `cable` writes for a description.
ghost use Rattle.trace_text.specs.TextFront.{TextFront};
ghost use Rattle.description.specs.Description.{described};

use trace_layout::limits::TRACE;

pub mod limits;
pub mod line;
pub mod read;
pub mod write;

// The trace of a description, or the line of a refusal, at the front of lent bytes. Answers its length, as its promise says.
pub fn described(t: &[u8], out: &mut [u8; TRACE]) -> usize
    ensures { TextFront (described t.now) out.old result out.new }
{
    if !read::well_described(t) {
        return line::malformed(out);
    }
    write::write(t, out)
}
