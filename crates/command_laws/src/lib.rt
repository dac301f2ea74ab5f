// Laws of the text commands: names in byte order, the known functions in rising order of name, each once; what is printed is readable;
// counts add up; every answer fits the output; which line is answered by what. No code.
#![tactic(auto)]
