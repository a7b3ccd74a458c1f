// What a torrent says of itself: the part that the value of `info` is, whose SHA-256 is the info hash, and the part that its `name` is.
#![tactic(auto)]

ghost use Rattle.std.specs.Prelude.{◌≡◌};
ghost use Rattle.torrent.specs.Torrent.{as_part};
ghost use Rattle.about.specs.About.{name_from, info_read, name_read};

use bencode::part::Part;
use bencode::parts::find;
use bencode::scalar::read_string;
use numbers::Refused;
use torrent::check::check;
use torrent::read::PartRead;

// The part that the value of `info` is; or 19 to 28 or 31.
pub fn read_info(torrent: &[u8]) -> Result<PartRead, Refused>
    ensures { as_part result ≡ info_read torrent.now }
{
    let c = check(torrent)?;
    let info = c.keys.info.start;
    let past = c.keys.info.end;
    Ok(PartRead {
        start: info,
        size: past - info,
    })
}

// The string that the dictionary at `at` has for `name`.
fn name_from(torrent: &[u8], at: usize) -> Option<Part>
    ensures { result ≡ name_from torrent.now at }
{
    let found = find(torrent, at, b"name")?;
    read_string(torrent, found.start)
}

// The part that the content of `name` in `info` is; 29 where it has no such string; or 19 to 28 or 31.
pub fn read_name(torrent: &[u8]) -> Result<PartRead, Refused>
    ensures { as_part result ≡ name_read torrent.now }
{
    let c = check(torrent)?;
    match name_from(torrent, c.keys.info.start) {
        None => Err(Refused::NoSuchPart),
        Some(Part { start, end }) => Ok(PartRead {
            start,
            size: end - start,
        }),
    }
}
