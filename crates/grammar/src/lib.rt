// A symbol of a grammar: a token with its number, or a nonterminal with its number.
#![tactic(auto)]

#[derive(Clone, Copy)]
pub enum Symbol {
    Token(u8),
    Nonterminal(u8),
}
