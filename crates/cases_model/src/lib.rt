// Two kinds of statements of `model`, proved apart from it, so that an edit of a definition is tried without them: cases
// worked by hand, by computation, and that an access leaves the output alone. No code is here.
#![tactic(auto)]
