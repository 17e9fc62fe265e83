//! What the bytes of an object say of themselves at their front.

ghost use Rattle.std.specs.Prelude.{◌≡◌, option_map};
ghost use Rattle.traced_cloud.specs.Stamp.{first_number, head_stamp, version_stamp, stamp_of};

use byte_format::u64_at;

/// What an object says of itself at its front.
#[derive(Clone, Copy, Debug, PartialEq, Eq)]
pub enum Stamp {
    /// The version of a page or a tree object.
    Version(u64),
    /// A head: its epoch, its transaction, and whether it is open.
    Head {
        /// The epoch.
        epoch: u64,
        /// The transaction.
        txn: u64,
        /// Whether it is open, and not settled.
        open: bool,
    },
}

/// The number in the first eight bytes, and the bytes behind it.
fn first_number(bytes: &[u8]) -> Option<(u64, &[u8])>
    ensures { option_map (λ x. (x.0, x.1.now)) result ≡ first_number bytes.now }
{
    match u64_at(bytes, 0, u64::MAX) {
        Ok((number, rest)) => Some((number, rest)),
        Err(_) => None,
    }
}

/// What stands behind the tag and the format of a page or a tree object.
fn version_stamp(bytes: &[u8]) -> Option<Stamp>
    ensures { result ≡ version_stamp bytes.now }
{
    match first_number(bytes) {
        Some((version, _)) => Some(Stamp::Version(version)),
        None => None,
    }
}

/// What stands behind the tag and the format of a head.
fn head_stamp(bytes: &[u8]) -> Option<Stamp>
    ensures { result ≡ head_stamp bytes.now }
{
    let Some((epoch, rest)) = first_number(bytes) else {
        return None;
    };
    let Some((txn, rest)) = first_number(rest) else {
        return None;
    };
    match rest {
        [] => None,
        [phase, ..] => Some(Stamp::Head {
            epoch,
            txn,
            open: *phase == 1,
        }),
    }
}

/// What the bytes say, where they begin as an object does.
pub fn stamp_of(bytes: &[u8]) -> Option<Stamp>
    ensures { result ≡ stamp_of bytes.now }
{
    match bytes {
        [] => None,
        [_] => None,
        [tag, _, rest @ ..] => {
            if *tag == b'H' {
                head_stamp(rest)
            } else if *tag == b'L' || *tag == b'I' || *tag == b'T' {
                version_stamp(rest)
            } else {
                None
            }
        }
    }
}
