// Theory: the text of a MultiPolygon (RFC 7946), by definition, how it is read, and that reading gives back what was written. The code that writes it is lettering's.
#![tactic(auto)]
