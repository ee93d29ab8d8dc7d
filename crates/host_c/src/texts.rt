// The refusals' texts, for programs in other languages.
ghost use Rattle.host.specs.Texts.{TextCrossing};

use host::texts;

// The text of the refusal with this number on 96 bytes, with zeros behind it, and its length.
#[unsafe(no_mangle)]
pub extern "C" fn shaftglimmer_text(refusal: u32, text: &mut [u8]) -> u32
    ensures { TextCrossing refusal text.old text.new result }
{
    texts::shaftglimmer_text(refusal, text)
}
