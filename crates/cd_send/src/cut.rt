ghost use Rattle.std.specs.Prelude.{◌≡◌, ◌+◌, ◌≤◌, ◌<◌};
ghost use Rattle.cd_pieces.specs.Piece.{piece_end};

/// Where the piece ends that begins at this offset, which lies before the end.
pub(crate) fn piece_end(length: u64, block: u32, interval: u64, offset: u64) -> u64
    requires some { 1 ≤ block }
    requires within { offset < length }
    ensures end { result ≡ piece_end length block interval offset }
    ensures further { offset < result }
    ensures upto { result ≤ length }
    ensures small { result ≤ offset + block }
{
    let len = (length - offset).min(block as u64);
    if interval == 0 {
        return offset + len;
    }
    let left = interval - offset % interval;
    offset + len.min(left)
}
