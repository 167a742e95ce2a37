// Lists and their laws. The specs define what every layer above says of a table: a rule for all
// records, a record that exists, the first record that answers a question, the records kept.
#![tactic(auto)]
