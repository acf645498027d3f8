// What a record's head says.
ghost use Rattle.compare.specs.Heads.{HeadRelease, HeadUnreleased};

use record::command::{Cursor, Head};
use record::lists::next;
use record::text::Text;

// The release that a record names.
pub fn head_release(stream: &[u8]) -> Option<Text>
    ensures { HeadRelease stream.now result }
{
    let Some((head, _)) = next::<Head>(stream, Cursor::new()) else {
        return None;
    };
    head.release
}

// Whether a record says that nothing was released yet.
pub fn head_unreleased(stream: &[u8]) -> bool
    ensures { HeadUnreleased stream.now result }
{
    let Some((head, _)) = next::<Head>(stream, Cursor::new()) else {
        return false;
    };
    head.unreleased
}
