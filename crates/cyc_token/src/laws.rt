//! Laws of the texts of tokens.
ghost use Rattle.std.specs.Prelude.{◌≡◌, None};
ghost use Rattle.news_terms.specs.Token.{IsToken, token_text};
ghost use Rattle.news_terms.specs.Token as terms;
ghost use Rattle.cyc_token.specs.Faults.{token_fault};

use crate::{Token, TokenError};

/// The text of a token reads back as the token.
pub fn read_back(token: Token) -> Result<Token, TokenError>
    ensures { result ≡ Ok token }
{
    Token::parse(&token.to_text())
}

/// The text of a token has no fault, and it is the text of no other token.
pub fn text_laws()
    ensures no_fault { (t : terms.Token) → IsToken t → token_fault (token_text t) ≡ None }
    ensures one_spelling { (a b : terms.Token) → IsToken a → IsToken b
        → token_text a ≡ token_text b → a ≡ b }
{}
