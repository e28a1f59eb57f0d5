//! Laws: the functions do nothing, and their contracts are the theorems.

ghost use Rattle.lra_command_line.specs.ParsedCommand.{EachList, OneFile};

/// Every list of words asks for exactly one command, or for none.
pub fn each_list()
    ensures { EachList }
{}

/// Words that ask for a command name one file for it, or standard input.
pub fn one_file()
    ensures { OneFile }
{}
