//! Laws of merged files.

ghost use Rattle.sr_capture_merge.specs.Files.{MergedFilesAreRead};

use sr_pcapng::what_is_written_is_read;

/// A merged file is read again: of each of its two interfaces the packets that it is said to have, in their order, with their times and
/// octets.
pub fn merged_files_are_read()
    ensures { MergedFilesAreRead }
{
    what_is_written_is_read();
}
