// The options that both sides have.
ghost use Rattle.std.specs.Prelude.{IfOk, [], codes};
ghost use Rattle.keeping.specs.Options.{TakenFrom, Each};

use arguments::{Arguments, Wrong};

#[derive(Drop)]
pub struct Options {
    pub drawn: String,
    pub rounds: Option<String>,
    pub book: Option<String>,
    pub words: Option<String>,
    pub progress: bool,
}

impl Options {
    // After these options no word may be left.
    pub fn read(mut arguments: Arguments) -> Result<Options, Wrong>
        ensures drawn { IfOk result (λ options. TakenFrom (codes "--drawn") arguments.words.items options.drawn) }
        ensures all { IfOk result (λ options. Each arguments.words.items options []) }
    {
        let options = Options {
            drawn: arguments.need("--drawn")?,
            rounds: arguments.take("--rounds"),
            book: arguments.take("--book"),
            words: arguments.take("--words"),
            progress: arguments.flag("--progress"),
        };
        arguments.end()?;
        Ok(options)
    }
}
