//! Contexts, documents and terms: texts in scripts, and what is printed of them.
use crate::scripts::Case;

pub const CONTEXTS: &[Case] = &[
    (
        "contexts are read and printed",
        "sites 1\ndel 1 a 1:3\ndel 1 b 1:3+5,2:0+4\ndel 1 c 1:1,70000:2\ndel 1 d 4294967295:281474976710655\n\
        del 1 e 9:2+4+5\nget 1 a\nget 1 b\nget 1 c\nget 1 d\nget 1 e\n",
        "ok\nok\nok\nok\nok\ncontext 1:3\ncontext 1:3+5,2:0+4\ncontext 1:1,70000:2\n\
        context 4294967295:281474976710655\ncontext 9:2+4+5\n",
    ),
    (
        "other texts are none",
        "sites 1\ndel 1 k \ndel 1 k --\ndel 1 k 1\ndel 1 k 1:\ndel 1 k :1\ndel 1 k 1:1,1:1\ndel 1 k 01:1\n\
        del 1 k 1:1,\ndel 1 k 1:1+\ndel 1 k 1:0+1\ndel 1 k 1:0+3+3\ndel 1 k 1:281474976710656\n\
        del 1 k 4294967296:1\ndel 1 k 1:-1\ndel 1 k 1:+1\ndel 1 k 99999999999999999999:1\n",
        "refused 2 BadContext\nrefused 2 BadContext\nrefused 2 BadContext\nrefused 2 BadContext\n\
        refused 2 BadContext\nrefused 2 BadContext\nrefused 2 BadContext\nrefused 2 BadContext\n\
        refused 2 BadContext\nrefused 2 BadContext\nrefused 2 BadContext\nrefused 2 BadContext\n\
        refused 2 BadContext\nrefused 2 BadContext\nrefused 2 BadContext\nrefused 2 BadContext\n",
    ),
    (
        "a join folds loose dots in",
        "sites 1\ndel 1 a 1:1,2:0+3\ndel 1 a 2:2\nget 1 a\ndel 1 b 1:5000\ndel 1 b 2:4097+4099\nget 1 b\n\
        del 1 c 2:4097+4099\ndel 1 c 2:0+4098\nget 1 c\ndel 1 d 3:0+2+4\ndel 1 d 1:1,3:0+3+6\nget 1 d\n",
        "ok\nok\ncontext 1:1,2:3\nok\nok\ncontext 1:5000,2:4097+4099\nok\nok\ncontext 2:4099\nok\nok\n\
        context 1:1,3:0+2+3+4+6\n",
    ),
    (
        "keys are graphic texts",
        "sites 1\nget 1 ~!\nget 1 a.b/c\nget 1 é\n",
        "context -\ncontext -\nrefused 1 BadKey\n",
    ),
];

pub const DOCUMENTS: &[Case] = &[
    (
        "documents are read and printed",
        "sites 1\nput 1 a - {\"a\":9223372036854775807}\nget 1 a\nput 1 b - {\"a\":-9223372036854775808}\n\
        get 1 b\nput 1 c - {\"a\":\"\\u00e9\\/\"}\nget 1 c\nput 1 d - {\"a\":1,\"a\":2}\nget 1 d\n\
        put 1 e - {\"a\":[[[[]]]]}\nget 1 e\n\
        put 1 f - {\"a\":[[[[[[[[[[[[[[[[[[[[[[[[[[[[[[[[[[[[[[[[[[[[[[[[[[[[[[[[[[[[[[[[[[[[[[\
        [[[[[[[[[[[[[[[[[[[[[[[[[[[[[[]]]]]]]]]]]]]]]]]]]]]]]]]]]]]]]]]]]]]]]]]]]]]]]]]]]]]]]]]]]]\
        ]]]]]]]]]]]]]]]]]]]]]]]]]]]]]]]]]]]]]]]]}\n",
        "dot 1:1\ncontext 1:1\n1:1 {\"a\":9223372036854775807}\ndot 1:1\ncontext 1:1\n\
        1:1 {\"a\":-9223372036854775808}\ndot 1:1\ncontext 1:1\n1:1 {\"a\":\"é/\"}\ndot 1:1\ncontext 1:1\n\
        1:1 {\"a\":2}\ndot 1:1\ncontext 1:1\n1:1 {\"a\":[[[[]]]]}\ndot 1:1\n",
    ),
    (
        "other texts are none",
        "sites 1\nput 1 k - \nput 1 k - {\"a\":1e999}\nput 1 k - {\"a\":-0}\nput 1 k - {\"a\":[{\"b\":1e2}]}\n\
        put 1 k - {\"a\":9223372036854775808}\nput 1 k - {\"a\":-9223372036854775809}\n",
        "refused 3 BadDocument\nrefused 3 BadDocument\nrefused 5 BadNumber\nrefused 5 BadNumber\n\
        refused 5 BadNumber\nrefused 5 BadNumber\n",
    ),
];

pub const TERMS: &[Case] = &[
    (
        "fields lead to terms",
        "sites 1\nindex addr.city\nindex n\nindex z\nindex t\nindex f\nindex x.y\nindex addr\nindex addr.no\n\
        index n.n\nindex q\n\
        put 1 k - {\"addr\":{\"city\":\"Oslo\",\"no\":[1]},\"n\":-7,\"x.y\":1,\"z\":null,\"t\":true,\"f\":false}\n\
        find 1 addr.city \"Oslo\"\nfind 1 n -7\nfind 1 z null\nfind 1 t true\nfind 1 f false\n\
        range 1 x.y [null,\"z\"]\nrange 1 addr [null,\"z\"]\nrange 1 addr.no [null,\"z\"]\n\
        range 1 n.n [null,\"z\"]\nrange 1 q [null,\"z\"]\n",
        "dot 1:1\nk 1:1\nk 1:1\nk 1:1\nk 1:1\nk 1:1\nnone\nnone\nnone\nnone\nnone\n",
    ),
    (
        "terms have an order",
        "sites 1\nindex n\nput 1 h - {\"n\":\"\"}\nput 1 d - {\"n\":-2}\nput 1 m - {\"n\":\"é\"}\n\
        put 1 a - {\"n\":null}\nput 1 f - {\"n\":0}\nput 1 j - {\"n\":\"a\"}\nput 1 b - {\"n\":false}\n\
        put 1 l - {\"n\":\"b\"}\nput 1 e - {\"n\":-1}\nput 1 i - {\"n\":\"10\"}\nput 1 c - {\"n\":true}\n\
        put 1 k - {\"n\":\"aa\"}\nput 1 g - {\"n\":10}\nrange 1 n [null,\"é\"]\n",
        "dot 1:1\ndot 1:1\ndot 1:1\ndot 1:1\ndot 1:1\ndot 1:1\ndot 1:1\ndot 1:1\ndot 1:1\ndot 1:1\ndot 1:1\n\
        dot 1:1\ndot 1:1\nnull a 1:1\nfalse b 1:1\ntrue c 1:1\n-2 d 1:1\n-1 e 1:1\n0 f 1:1\n10 g 1:1\n\
        \"\" h 1:1\n\"10\" i 1:1\n\"a\" j 1:1\n\"aa\" k 1:1\n\"b\" l 1:1\n\"é\" m 1:1\n",
    ),
    (
        "other texts are none",
        "sites 1\nindex n\nfind 1 n 1.5\nfind 1 n {}\nfind 1 n [1]\nfind 1 n \nrange 1 n [1]\nrange 1 n 1.5\n\
        range 1 n {}\nrange 1 n x\nrange 1 n \nrange 1 n [1,2,3]\nrange 1 n [1,[]]\n",
        "refused 15 BadTerm\nrefused 15 BadTerm\nrefused 15 BadTerm\nrefused 15 BadTerm\nrefused 15 BadTerm\n\
        refused 15 BadTerm\nrefused 15 BadTerm\nrefused 15 BadTerm\nrefused 15 BadTerm\nrefused 15 BadTerm\n\
        refused 15 BadTerm\n",
    ),
    (
        "fields and views have names",
        "sites 1\nfind 1 a 1\nfind 1 a.b.c.d.e.f.g.h 1\nfind 1 ~! 1\nfind 1  1\nfind 1 . 1\nfind 1 a. 1\n\
        find 1 .a 1\nfind 1 a.b.c.d.e.f.g.h.i 1\nfind 1 é 1\nrow 1 a..b 1\n",
        "refused 12 NoIndex\nrefused 12 NoIndex\nrefused 12 NoIndex\nrefused 37 BadDefs\nrefused 37 BadDefs\n\
        refused 37 BadDefs\nrefused 37 BadDefs\nrefused 37 BadDefs\nrefused 37 BadDefs\nrefused 13 NoView\n",
    ),
];
