// The line of a refusal at the front of lent bytes. Each function answers where it ends.
ghost use Rattle.std.specs.Prelude.{◌≤◌, length};
ghost use Rattle.trace_layout.specs.Trace.{trace_limit};
ghost use Rattle.trace_text.specs.Calls.{TextAt};
ghost use Rattle.description.specs.Description.{malformed_line, refusal_line};

use trace_text::line::Text;

// One word, at the front.
fn word(word: &[u8], out: &mut [u8]) -> usize
    requires { length word.now ≤ length out.old }
    ensures { TextAt 0 word.now out.old result out.new }
{
    let mut text = Text { out, end: 0 };
    text.word(word);
    text.end
}

pub fn malformed(out: &mut [u8]) -> usize
    requires { trace_limit ≤ length out.old }
    ensures { TextAt 0 malformed_line out.old result out.new }
{
    word(
        b"cable: 8, the description has a wrong length or its byte 5 is not 0\n",
        out,
    )
}

// By the number and the cause of a 10: numbers, as it answers for every number.
pub fn refusal(number: u8, reason: u8, out: &mut [u8]) -> usize
    requires { trace_limit ≤ length out.old }
    ensures { TextAt 0 (refusal_line number reason) out.old result out.new }
{
    let text: &[u8] = match (number, reason) {
        (1, _) => b"cable: 1, a size is outside its limits\n",
        (2, _) => b"cable: 2, M is not admitted with these sizes\n",
        (_, 1) => b"cable: 10, the response is empty or longer than 32\n",
        (_, 2) => b"cable: 10, the symbols are not 1 to 65535 whole blocks of N\n",
        (_, 3) => b"cable: 10, there are more training entries than symbols\n",
        (_, 4) => b"cable: 10, the trace would be longer than 65536 bytes\n",
        (_, 5) => b"cable: 10, an entry is not a symbol\n",
        _ => b"cable: 10, some gain would be below L or does not exist\n",
    };
    word(text, out)
}
