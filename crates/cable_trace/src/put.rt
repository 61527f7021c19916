// The bytes of a trace: its samples and its training entries.
ghost use Rattle.std.specs.Prelude.{◌≡◌, cond, ◌*◌, ◌≤◌, ◌<◌, ltb, length, get_or, pos};
ghost use Rattle.std.specs.Int.{w8};
ghost use Rattle.std.proofs.Common.{of_z};
ghost use Rattle.laws.specs.Sums.{Each};
ghost use Rattle.laws.specs.Values.{values};
ghost use Rattle.cable_trace.specs.Calls.{Gainable, sample_words, NotNegative, stored_words, Puttable, trace_bytes};

use super::Cable;
use trace_layout::limits::TRACE_HEADER;
use trace_layout::write::put_header;

// Three bytes of each word, and a fourth over which the next one is written: a store of four bytes is one.
fn samples(words: &[i32], out: &mut [u8])
    requires { (Each NotNegative words.now) × (3 * length words.now < length out.old) }
    ensures { out.new ≡ stored_words words.now out.old (length words.now) }
{
    for (i, word) in words.iter().enumerate() {
        out[3 * i..3 * i + 4].copy_from_slice(&word.to_le_bytes());
    }
}

// The bytes of symbols.
fn symbol_bytes(symbols: &[i8], out: &mut [u8])
    requires { length out.old ≡ length symbols.now }
    ensures { out.new ≡ values (λ n. of_z w8 (get_or symbols.now n (pos 0))) (length symbols.now) }
{
    for (i, byte) in out.iter_mut().enumerate() {
        *byte = symbols[i].cast_unsigned();
    }
}

// The training entries: the first symbols, and 0 after them.
pub fn entries(symbols: &[i8], training: usize, out: &mut [u8])
    requires { (training ≤ length symbols.now) × (length out.old ≡ length symbols.now) }
    ensures { out.new ≡ values (λ n. of_z w8 (cond (ltb n training) (get_or symbols.now n (pos 0)) (pos 0))) (length symbols.now) }
{
    symbol_bytes(&symbols[..training], &mut out[..training]);
    out[training..].fill(0);
}

// The whole trace, from the word of each sample.
fn word_trace(cable: Cable, words: &[i32], out: &mut [u8])
    requires { Puttable cable.settings cable.symbols.now cable.training words.now out.old }
    ensures { out.new ≡ trace_bytes cable.entry.settings cable.entry.symbols.now cable.entry.training words.now }
{
    let k = cable.settings;
    let n = cable.symbols.len();
    let mid = TRACE_HEADER + 3 * n;
    let end = mid + n;
    put_header(k, (n / usize::from(k.N)) as u32, &mut out[..TRACE_HEADER]);
    samples(words, &mut out[TRACE_HEADER..end]);
    entries(cable.symbols, cable.training, &mut out[mid..end]);
}

// The same from s of each symbol, which is replaced by the word of its sample.
pub fn trace(cable: Cable, sums: &mut [i32], out: &mut [u8])
    requires { (Each (Gainable cable.settings.r) sums.old) × (Puttable cable.settings cable.symbols.now cable.training (sample_words cable.settings.r sums.old) out.old) }
    ensures { (sums.new ≡ sample_words cable.entry.settings.r sums.old) × (out.new ≡ trace_bytes cable.entry.settings cable.entry.symbols.now cable.entry.training sums.new) }
{
    super::word::words(u32::from(cable.settings.r), sums);
    word_trace(cable, sums, out);
}
