//! Laws of frames, each the contract of a function that does nothing.
//!
//! They tie what is read (`specs/Frames.antt`) to what is written (`specs/Text.antt`), and say what may be relied on whatever bytes follow.
ghost use Rattle.px_frame.specs.Laws as law;

/// Each list of bytes is some frames, with a rest or a fault behind them.
pub fn all_is_read()
    ensures { law.AllIsRead }
{}

/// It is so in one way only.
pub fn frames_are_unique()
    ensures { law.FramesAreUnique }
{}

/// A frame stays, whatever follows it.
pub fn frames_stay()
    ensures { law.FramesStay }
{}

/// A fault waits for no more bytes: it stays with the frames before it, whatever follows.
pub fn faults_stay()
    ensures { law.FaultsStay }
{}

/// Two pieces give what their bytes give at once, and leave the same reader: no cut shows.
pub fn cuts_do_not_show()
    ensures { law.CutsDoNotShow }
{}

/// Masking twice is the payload.
pub fn masked_twice()
    ensures { law.MaskedTwice }
{}

/// What is written is read as itself where there is no fault in it, whatever follows.
pub fn written_is_read()
    ensures { law.WrittenIsRead }
{}

/// What is written behind other frames stands directly behind them, where there is no fault in it.
pub fn written_is_read_behind()
    ensures { law.WrittenIsReadBehind }
{}

/// Whatever is read is what would be written, under some key: so each length is stated in the shortest form.
pub fn read_is_written()
    ensures { law.ReadIsWritten }
{}
