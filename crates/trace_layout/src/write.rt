// The header of a trace.
ghost use Rattle.std.specs.Prelude.{◌≡◌, length};
ghost use Rattle.trace_layout.specs.Trace.{trace_header_length, trace_header};

use steps::settings::Settings;

pub fn put_header(k: Settings, count: u32, out: &mut [u8])
    requires { length out.old ≡ trace_header_length }
    ensures { out.new ≡ trace_header k count }
{
    out[..6].copy_from_slice(&[k.p, k.q, k.N, k.r, k.L, 0]);
    out[6..8].copy_from_slice(&count.to_le_bytes()[..2]);
    out[8..12].copy_from_slice(&k.M.to_le_bytes());
}
