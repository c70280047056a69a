ghost use Rattle.base_words.specs.Laws.{CutBack, JoinedBack};

/// The laws that join cutting and joining: the pieces of a text, joined by the byte that parts them, are the text; and
/// pieces in which that byte does not stand, joined by it, are cut into the same pieces.
pub fn words_are_cut_back()
    ensures joined { JoinedBack }
    ensures cut { CutBack }
{}
