// Laws of the server's definitions: every outcome of an event by cases; no serial and no handle is given twice, and a refusal changes
// nothing; every table rule of document 01 is kept by every event. No code.
#![tactic(auto)]
