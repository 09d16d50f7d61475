//! What is true of reports: a public function whose contract carries the law. It does nothing.

ghost use Rattle.capture_texts.specs.Laws.{UnsafeIsOfAFile, SafeIsOfAFile};

/// A verdict on a capture is that of a file: `Unsafe` where each placement of its changes has a clash, and `Safe` where one has
/// none. Does nothing.
pub fn verdicts_are_of_files()
    ensures charge { UnsafeIsOfAFile }
    ensures clean { SafeIsOfAFile }
{}
