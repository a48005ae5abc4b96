//! Laws of the format. Each function does nothing; what it ensures is the law.
ghost use Rattle.std.specs.Prelude.{◌≡◌, ◌++◌, List, ℕ, []};
ghost use Rattle.px_tnet.specs.Items.{IsItem, IsRefused, most_deep};
ghost use Rattle.px_tnet.specs.Tree.{Tree};
ghost use Rattle.px_tnet.specs.Written.{IsSound, written};
ghost use Rattle.px_tnet.specs.declared.error.TnetError.{TnetError};
ghost use Rattle.px_tnet.specs.declared.error.TnetError.TheVariants as error;

/// What is written is read back as the same tree, whatever follows.
pub fn written_is_read()
    ensures { (tree : Tree) (rest : List ℕ) → IsSound tree most_deep → IsItem most_deep tree (written tree ++ rest) rest }
{}

/// Each tree has one spelling, which is what is written, and a tree that is read is one that may be written and read.
pub fn each_tree_has_one_spelling()
    ensures { (tree : Tree) (text rest : List ℕ) → IsItem most_deep tree text rest
        → (text ≡ written tree ++ rest) × IsSound tree most_deep }
{}

/// A text begins with one tree at most.
pub fn each_text_has_one_tree()
    ensures { (tree other : Tree) (text rest behind : List ℕ) → IsItem most_deep tree text rest
        → IsItem most_deep other text behind → (tree ≡ other) × (rest ≡ behind) }
{}

/// A text that begins with a tree is not refused.
pub fn what_is_read_is_not_refused()
    ensures { (tree : Tree) (text rest : List ℕ) (cause : TnetError) → IsItem most_deep tree text rest
        → ¬ (IsRefused most_deep text cause) }
{}

/// A text has one refusal at most.
pub fn each_text_has_one_refusal()
    ensures { (text : List ℕ) (cause other : TnetError) → IsRefused most_deep text cause
        → IsRefused most_deep text other → cause ≡ other }
{}

/// The text of a tree that is cut anywhere is refused as cut, and as nothing else.
pub fn cut_is_refused_as_cut()
    ensures { (tree : Tree) (text front behind : List ℕ) → IsItem most_deep tree text [] → text ≡ front ++ behind → ¬ (behind ≡ [])
        → IsRefused most_deep front error.Cut × ((cause : TnetError) → IsRefused most_deep front cause → cause ≡ error.Cut) }
{}
