//! What the contracts imply. Each law is a call that does nothing.
ghost use Rattle.command_line.specs.Laws.{NoExecutorsAreTaken, NoNumberIsRefused, NoWordsGiveDefaults, WordsMeanOneThing};

/// Words give one set of options, and words that give some aren't refused.
pub fn words_mean_one_thing()
    ensures { WordsMeanOneThing }
{}

/// No word gives the defaults.
pub fn no_words_give_defaults()
    ensures { NoWordsGiveDefaults }
{}

/// `--executors 0` gives the defaults with no executors.
pub fn no_executors_are_taken()
    ensures { NoExecutorsAreTaken }
{}

/// `--executors x` is refused.
pub fn no_number_is_refused()
    ensures { NoNumberIsRefused }
{}
