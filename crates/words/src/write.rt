// Numbers to their bytes.
ghost use Rattle.std.specs.Prelude.{◌≡◌, ◌*◌, length};
ghost use Rattle.std.specs.Int.{w16};
ghost use Rattle.words.specs.Words.{width, words};

// Signed numbers of two bytes, one after another.
pub fn put_words(src: &[i16], out: &mut [u8])
    requires { length out.old ≡ width w16 * length src.now }
    ensures { out.new ≡ words w16 src.now }
{
    for (i, z) in src.iter().enumerate() {
        out[2 * i..2 * i + 2].copy_from_slice(&z.to_le_bytes());
    }
}
