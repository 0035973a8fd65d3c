// The parts of a template, written one by one.
ghost use Rattle.std.specs.Prelude.{None, Some};
ghost use Rattle.text.specs.Lossy.{lossy};
ghost use Rattle.wire.specs.Text.{encode_text};
ghost use Rattle.wire.specs.Optional.{encode_optional};
ghost use Rattle.report.specs.Buffer.{Wrote};

use report::writer::Writer;

// Writes a part that is a text.
#[tactic(auto, using(report::proofs::Buffers::more_cons), unfolding(wire::specs::Optional::encode_optional))]
pub fn put_string(text: &[u8], w: &mut Writer)
    ensures { Wrote w.old w.new (encode_optional encode_text (Some (lossy text.now))) }
{
    w.put_flag(true);
    w.put_lossy_text(text);
}

// Writes a part that is an expression.
#[tactic(auto, unfolding(wire::specs::Optional::encode_optional))]
pub fn put_expr(w: &mut Writer)
    ensures { Wrote w.old w.new (encode_optional encode_text None) }
{
    w.put_flag(false);
}
