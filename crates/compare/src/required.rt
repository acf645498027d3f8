// Texts that a current record must have (01's "!").
ghost use Rattle.compare.specs.Required.{RequiredText};

use record::text::Text;

// The text; an empty one stands for one that is absent, which no accepted record has.
pub fn required_text(t: Option<Text>) -> Text
    ensures { RequiredText t result }
{
    t.unwrap_or(Text { start: 0, len: 0 })
}
