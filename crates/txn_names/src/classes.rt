//! The classes of bytes that labels and keys are made of.
ghost use Rattle.std.specs.Prelude.{◌≡◌};
ghost use Rattle.txn_names.specs.Text.{is_key_byte, is_label_byte};

// The class of each byte: `l` of one that may stand in a label, and so in a key; `k` of one that
// may stand in a key alone.
static CLASSES: [u8; 256] = *b"\
    ,,,,,,,,,,,,,,,,,,,,,,,,,,,,,,,,\
    ,,,,,,,,,,,,,kk,llllllllll,,,,,,\
    ,,,,,,,,,,,,,,,,,,,,,,,,,,,,,,,k\
    ,llllllllllllllllllllllllll,,,,,\
    ,,,,,,,,,,,,,,,,,,,,,,,,,,,,,,,,\
    ,,,,,,,,,,,,,,,,,,,,,,,,,,,,,,,,\
    ,,,,,,,,,,,,,,,,,,,,,,,,,,,,,,,,\
    ,,,,,,,,,,,,,,,,,,,,,,,,,,,,,,,,";

/// Whether the byte may stand in a label: a-z and 0-9.
#[inline(always)]
pub(crate) fn is_label_byte(b: u8) -> bool
    ensures { result ≡ is_label_byte b }
{
    CLASSES[b as usize] == b'l'
}

/// Whether the byte may stand in a key: those of labels, `.`, `_` and `-`.
#[inline(always)]
pub(crate) fn is_key_byte(b: u8) -> bool
    ensures { result ≡ is_key_byte b }
{
    CLASSES[b as usize] != b','
}
