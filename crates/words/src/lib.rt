//! The words in which the codecs above state what their readers answer. It has definitions and laws, and no code.
#![tactic(auto)]
