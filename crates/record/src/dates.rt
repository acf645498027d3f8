// The releases that members and values arrived in.
ghost use Rattle.record.specs.Dates.{Dated};

use crate::text::Text;

// The release of a member, its own or else its bit field's; for a value and its enum this one function is the Rust's value_release too.
pub fn member_release(own: Option<Text>, parent: Option<Text>) -> Option<Text>
    ensures { Dated own parent result }
{
    let Some(release) = own else {
        return parent;
    };
    Some(release)
}
