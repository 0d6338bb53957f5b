// The last name that a copy got (02, Item 1), after 1 and 5 to 12.
use crate::checking::{check_length, read_whole};
use crate::{Answer, Answered};
use policies::no_policy;
use readings::advance;

// Yes with the offset of its first byte.
pub fn name(s: &[u8], copy: u64) -> Answered {
    check_length(s)?;
    read_whole(s)?;
    Ok(last_name(s, copy))
}

// Of a sheet that is read whole.
fn last_name(s: &[u8], copy: u64) -> Answer {
    let mut a = Answer::No;
    let mut p = no_policy();
    let mut newest = None;
    while p.at < s.len() {
        let at = p.at;
        p = advance(s, p);
        newest = newest_by(s[at], newest, p.atoms.count);
        if s[at] == 0x51 && newest == Some(copy) {
            a = Answer::Yes(at as u64 + 1);
        }
    }
    a
}

// The number of the copy that came last, if no rule came behind it. Copies are numbered from 0.
fn newest_by(byte: u8, newest: Option<u64>, n: u64) -> Option<u64> {
    match byte {
        0x11 | 0x13 => n.checked_sub(1),
        0x12 => None,
        _ => newest,
    }
}
