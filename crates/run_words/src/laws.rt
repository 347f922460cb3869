//! The law of words. The function does nothing: its contract is the law.
ghost use Rattle.run_words.specs.Laws.{SayOneThing};

/// Words say one thing, where they say anything.
pub fn words_say_one_thing()
    ensures { SayOneThing }
{}
