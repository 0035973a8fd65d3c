// The question that also names rules, for C.
#![tactic(auto)]

ghost use Rattle.std.specs.Prelude.{◌≡◌, length};
ghost use Rattle.rules.specs.Rules.{Ruled, DemandsOfBoth, ruled_number, ruled_lengths};

// The number, and two lengths, the report's and that of the rules.
#[unsafe(no_mangle)]
pub extern "C" fn module_info_with_rules(
    sheet: &[u8],
    buffer: &mut [u8],
    rules: &mut [u8],
    lengths: &mut [u64; 2],
) -> u64
    ensures { (o : Ruled) × DemandsOfBoth sheet.now (length buffer.old) (length rules.old) o
        buffer.new rules.new
        × (result ≡ ruled_number o) × (lengths.new ≡ ruled_lengths o) }
{
    rules::module_info_with_rules(sheet, buffer, rules, lengths)
}
