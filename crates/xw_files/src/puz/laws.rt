//! Laws of the `.puz` format: they do nothing at run time and give callers proved facts.
ghost use Rattle.xw_files.specs.Puz.Laws.{FilesHaveOnePart, BytesAreCut, CutsAreOne, WrittenIsRead, FirstFaultIsFound, FirstFaultIsOne, FilesHaveNoFault};

/// All puzzles of one file have the same file part.
pub fn files_have_one_part()
    ensures { FilesHaveOnePart }
{}

/// The bytes after the notes are split into whole sections and a tail in exactly one way.
pub fn sections_are_cut_once()
    ensures some { BytesAreCut }
    ensures one { CutsAreOne }
{}

/// Reading what was written gives a puzzle with the same file part. Bytes may be appended; if no open cell is circled,
/// they must have no GEXT section.
pub fn what_is_written_is_read()
    ensures { WrittenIsRead }
{}

/// Reading stops at the first fault of the bytes, and only one fault is the first.
pub fn reading_finds_the_first_fault()
    ensures found { FirstFaultIsFound }
    ensures one { FirstFaultIsOne }
{}

/// A file of a puzzle has no fault.
pub fn files_have_no_fault()
    ensures { FilesHaveNoFault }
{}
