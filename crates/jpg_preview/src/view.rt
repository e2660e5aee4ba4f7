//! A piece of a file that is previewed: it goes to a reader up to the end of the front (T.81, B.2.1).
ghost use Rattle.std.specs.Prelude.{◌≡◌, true, false};
ghost use Rattle.jpg_file.specs.Read.File.{keeping_of};
ghost use Rattle.jpg_file.specs.Read.ReadFile.{EndsDone, IsPlain};
ghost use Rattle.jpg_preview.specs.Viewing.{EndsThere, IsUnwanted, IsWanted, PieceLacks, ViewsPiece};

use jpg_base::{Fed, Stop};
use jpg_file::{End, FedScan, Reader};

/// Takes the bytes of a piece up to the end of the front for so many scans: the marker after a scan that is wanted.
/// Returns Done with it, and how many bytes were used; otherwise the stop of these bytes; otherwise More.
pub fn view_piece(reader: &mut Reader, scans: u16, piece: &[u8]) -> Result<Fed, Stop>
    requires undone { reader.old.done ≡ false }
    requires plain { IsPlain reader.old }
    ensures viewed { ViewsPiece scans reader.old piece.now result reader.new }
    ensures memory { PieceLacks result reader.new }
    ensures done { EndsDone result reader.new }
    ensures limits { reader.new.limits ≡ reader.old.limits }
    ensures keeping { keeping_of reader.new.file ≡ keeping_of reader.old.file }
    ensures plain { IsPlain reader.new }
{
    let mut used = 0usize;
    while used < piece.len() {
        match reader.feed_scan(&piece[used..]) {
            Ok(FedScan::More) => return Ok(Fed::More),
            Ok(FedScan::Scan { used: n }) => used += n as usize,
            Ok(FedScan::Done { used: n }) => {
                return Ok(Fed::Done {
                    used: used as u64 + n,
                });
            }
            Err(stop) => return Err(stop),
        }
        if is_wanted(reader, scans) {
            return end_there(reader, used as u64);
        }
    }
    Ok(Fed::More)
}

// Whether so many scans' data have ended, and each component has begun.
fn is_wanted(reader: &Reader, scans: u16) -> bool
    ensures ends { result ≡ true → IsWanted scans reader.now }
    ensures goes { result ≡ false → IsUnwanted scans reader.now }
{
    reader.scans_ended() >= scans as u64 && reader.begun()
}

// The front ends after so many bytes of a piece, and the file as one that ends early.
fn end_there(reader: &mut Reader, used: u64) -> Result<Fed, Stop>
    requires undone { reader.old.done ≡ false }
    requires plain { IsPlain reader.old }
    ensures ends { EndsThere reader.old used result reader.new }
    ensures memory { PieceLacks result reader.new }
    ensures done { EndsDone result reader.new }
    ensures limits { reader.new.limits ≡ reader.old.limits }
    ensures keeping { keeping_of reader.new.file ≡ keeping_of reader.old.file }
    ensures plain { IsPlain reader.new }
{
    match reader.end() {
        End::Early(_) => Ok(Fed::Done { used }),
        End::Stop(stop) => Err(stop),
    }
}
