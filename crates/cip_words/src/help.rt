// The help text.
ghost use Rattle.std.specs.Prelude.{◌≡◌};
ghost use Rattle.cip_words.specs.Help.{help};

/// The forms of all commands, a line each.
pub fn help_text() -> &'static str
    ensures { result.now ≡ help }
{
    "cip annotate [--nodes N] [--workers N] [--rule1b Y]\n\
     cip explain [--nodes N] [--workers N] [--rule1b Y]\n\
     cip make --start N --records N\n\
     cip trial --start N --records N [--nodes N] [--workers N] [--rule1b Y]\n\
     cip set --record N --atom N --letter L [--nodes N] [--workers N] [--rule1b Y]\n\
     cip mirror [--nodes N] [--workers N] [--rule1b Y]\n\
     cip groups [--nodes N] [--workers N] [--rule1b Y]\n\
     cip axes [--nodes N] [--workers N] [--rule1b Y]\n\
     cip help\n"
}
