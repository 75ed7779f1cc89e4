/// A name that the program prints about one kind of input, and its meaning.
#[derive(Clone, Copy)]
pub(crate) struct Meaning {
    /// The name, such as `OutOfField`.
    pub(crate) name: &'static str,
    /// The meaning in a few words, as in the tables of docs/DEFINITIONS.md.
    pub(crate) short: &'static str,
    /// The cause and what to change, in lines of at most 80 columns, without the last newline. An
    /// example follows the lines `wrong:` and `right:`, two columns in; before it are the files
    /// that go with it, each after a line such as `crontab:`. If it is of another kind of file than
    /// the name, these lines are `wrong crontab:` and so on.
    pub(crate) text: &'static str,
}
