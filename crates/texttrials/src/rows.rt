// Cases of rule texts.
use crate::coded::{decode, take_number};
use crate::said::{put_coded, say, say_fault};
use listed::table::ListedMap;
use look::switch::SwitchLook;
use ruletext::read::read_rules;
use saving::rows::write_rules;
use session::held::Session;
use std::alloc::{AllocError, Global};

// Appends what reading a rule text into a session on the map answers, and the rows that the session has then.
fn say_read(
    out: &mut Vec<u8>,
    text: &[u8],
    session: &mut Session,
    map: &ListedMap<'_, SwitchLook>,
    sheet: &[u64],
) {
    match read_rules(text, session, map, sheet) {
        Ok(()) => say(out, "ok"),
        Err(fault) => say_fault(out, fault),
    }
    say(out, " rows:");
    let mut bytes = [0; 2048];
    let n = write_rules(&session.rules(), &mut bytes).unwrap_or(0);
    put_coded(out, &bytes[..n]);
}

// `rules WORDS TEXT`: what comes of reading the text into a session on a map of two states, lent a sheet of so many words.
pub(crate) fn run_rules(heap: Global, out: &mut Vec<u8>, rest: &str) -> Result<(), AllocError> {
    let (words, text) = take_number(rest);
    let sheet = vec![in heap; 0; words]?;
    let text = decode(heap, text);
    let looks = [SwitchLook { marks: 1 }, SwitchLook { marks: 2 }];
    let map = ListedMap::new(&looks, &[1, 0], &[0, 1, 2], &[1, 0]);
    if let Ok(mut session) = Session::open(&map, &mut [0; 2]) {
        say_read(out, text.as_slice(), &mut session, &map, sheet.as_slice());
    }
    Ok(())
}
