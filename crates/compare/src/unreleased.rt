// The pass over a copy that says unreleased: it describes no layout.
ghost use Rattle.compare.specs.Sought.{UnreleasedFrom};

use record::command::{Bitfield, Constant, Cursor, Enum, Family, Struct, TypeAlias};
use record::lists::next;
use verdicts::verdict::Verdict;

// Whether nothing is described. Any of the six lists describes a layout; plugin keys and version entries do not.
pub fn check_nothing_released(old_stream: &[u8]) -> Result<(), Verdict>
    ensures { UnreleasedFrom old_stream.now result }
{
    let start = Cursor::new();
    if let Some((_, _)) = next::<Struct>(old_stream, start) {
        return Err(Verdict::Described);
    }
    if let Some((_, _)) = next::<Constant>(old_stream, start) {
        return Err(Verdict::Described);
    }
    if let Some((_, _)) = next::<Enum>(old_stream, start) {
        return Err(Verdict::Described);
    }
    if let Some((_, _)) = next::<Bitfield>(old_stream, start) {
        return Err(Verdict::Described);
    }
    if let Some((_, _)) = next::<TypeAlias>(old_stream, start) {
        return Err(Verdict::Described);
    }
    if let Some((_, _)) = next::<Family>(old_stream, start) {
        return Err(Verdict::Described);
    }
    Ok(())
}
