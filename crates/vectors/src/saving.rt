// A copy's state saved, and a saved file loaded.
use crate::feeding::{copy_of, tell, tell_copy};
use crate::layout::SAVED_FILE;
use copy_bytes::loading::load;
use copy_bytes::saving::save;
use program_io::packed::item;
use rules_tablet::Copy;

// The refusal, or 0 and the length.
fn save_copy(copy: Copy, buffer: &mut [u8], said: &mut [u8]) {
    match save(copy, buffer) {
        Ok(n) => tell(said, 8, n),
        Err(refusal) => tell(said, 0, refusal.number()),
    }
}

// Saves the copy of a case.
pub fn save_case(case: &[u8], buffer: &mut [u8], said: &mut [u8]) {
    save_copy(copy_of(case), buffer, said);
}

// The copy's record, and saving it; then the refusal of loading, or 0.
fn tell_loaded(copy: Copy, number: usize, buffer: &mut [u8], said: &mut [u8]) {
    tell_copy(said, copy);
    save_copy(copy, buffer, said);
    tell(said, 0, number);
}

// Loads a file in place of the copy of a case, and saves what is then the copy: the refusal of loading, or 0; the length of what is saved; the copy's record.
pub fn load_case(case: &[u8], buffer: &mut [u8], said: &mut [u8]) {
    match load(item(case, SAVED_FILE)) {
        Ok(copy) => tell_loaded(copy, 0, buffer, said),
        Err(refusal) => tell_loaded(copy_of(case), refusal.number(), buffer, said),
    }
}
