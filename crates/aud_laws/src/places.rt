//! In which of several files a line stands.
ghost use Rattle.aud_laws.specs.Places.{LinesStandWhereTold};

use aud_input::lines_of_files;

/// Where [`place_told`](aud_input::place_told) tells of a line of files that are read as one input in which of them it
/// stands, it does: in a file of that name it is the line of that number. Lines count from 1.
pub fn lines_stand_where_told()
    ensures { LinesStandWhereTold }
{
    lines_of_files();
}
