//! The script of a page: it sorts tables. A page is read without it as well.

/// The SHA-256 digest of the script, in Base64, as a policy names it.
pub(crate) const SCRIPT_HASH: &str = "mOo5dBGhSi558r/NN3AmjEevo4ad7VoyPwN9j+KP0l4=";

/// Its lines.
pub(crate) const SCRIPT: [&str; 29] = [
    "(function () {\n",
    "  \"use strict\";\n",
    "  // Sorting: each head becomes a button; a second press turns the order round.\n",
    "  document.querySelectorAll(\"table.sortable\").forEach(function (table) {\n",
    "    var heads = [].slice.call(table.tHead.rows[0].cells), body = table.tBodies[0];\n",
    "    heads.forEach(function (head, at) {\n",
    "      var button = document.createElement(\"button\");\n",
    "      button.type = \"button\";\n",
    "      while (head.firstChild) button.appendChild(head.firstChild);\n",
    "      head.appendChild(button);\n",
    "      button.addEventListener(\"click\", function () {\n",
    "        var down = head.getAttribute(\"aria-sort\") !== \"descending\" && head.classList.contains(\"num\") ||\n",
    "          head.getAttribute(\"aria-sort\") === \"ascending\";\n",
    "        heads.forEach(function (other) { other.removeAttribute(\"aria-sort\"); });\n",
    "        head.setAttribute(\"aria-sort\", down ? \"descending\" : \"ascending\");\n",
    "        function value(row) {\n",
    "          var cell = row.cells[at], v = cell.getAttribute(\"data-v\");\n",
    "          if (v === null) v = cell.textContent;\n",
    "          return v === \"\" ? null : isNaN(v) ? v : Number(v);\n",
    "        }\n",
    "        [].slice.call(body.rows).map(function (row, i) { return [value(row), i, row]; }).sort(function (x, y) {\n",
    "          if (x[0] === null || y[0] === null) return (x[0] === null) - (y[0] === null) || x[1] - y[1];\n",
    "          var less = x[0] < y[0] ? -1 : x[0] > y[0] ? 1 : 0;\n",
    "          return (down ? -less : less) || x[1] - y[1];\n",
    "        }).forEach(function (x) { body.appendChild(x[2]); });\n",
    "      });\n",
    "    });\n",
    "  });\n",
    "})();\n",
];
